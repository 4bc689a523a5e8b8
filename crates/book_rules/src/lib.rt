// The book's rules and what each edit does: definitions and laws. The code is in crate `book_edits`.
#![tactic(auto)]
