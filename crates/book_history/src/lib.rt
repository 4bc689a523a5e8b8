// The book and its history: theorems over the definitions of `book_rules`. There is no code here.
#![tactic(auto)]
