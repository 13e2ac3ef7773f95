// The calls of document 01 as C functions: the state is an array of words, and each call answers the number of its refusal, 0 where it is accepted.
// Telling a file is the same with a telling, and answers what is to be done next.
#![tactic(auto)]

mod begin;
mod file;
mod links;
mod pass;
mod questions;
mod tell_file;
