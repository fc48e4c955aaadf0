// Tree bytes as the compiler reads them: where fields end, names, and how long the records of terms are.

#![tactic(auto)]

pub mod bytes; // bytes.rt: fields, texts, names
pub mod width; // width.rt: how long a term's own record is, as far as the tree alone tells
