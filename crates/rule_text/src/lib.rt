// Rules typed as text: syntax trees and their truth by walks, tokens, the grammar, and the lines that a rule becomes, as definitions with
// their theory: a text has at most one tree, and the truth of the tree is that of the lines. The scanner and the parser that the contracts
// of the code cite stand beside the grammar. Crates scanner, rule_lines, rule_places and rule_reader have the code.
#![tactic(auto)]

pub mod token;
