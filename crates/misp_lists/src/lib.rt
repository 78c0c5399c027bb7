//! Lists, orders, searching and bytes: definitions and lemmas, whatever the lists are of.
#![tactic(auto)]
