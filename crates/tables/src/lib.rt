// The words of the tables by what they say: the stored sections and the held links.
#![tactic(auto)]

mod links;
mod sections;

pub use links::{RADIX, high_end, low_end, put_link, word_of};
pub use sections::{
    END, LEVEL, MARK, NOTE, PARENT, SCRATCH, STORED, TURN, WHOSE, better_note, end_at, is_above,
    level_of, low_of, mark_at, note_at, parent_at, parent_of, rank_at, turn_at, whose_at,
};
