#![tactic(auto)]

// No code: the words that every layer's definitions are written in stand in specs/.
