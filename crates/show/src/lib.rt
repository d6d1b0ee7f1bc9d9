// How a play is shown: as lines, as a drawing in text, and as a picture.
#![tactic(auto)]

pub mod line;
pub mod picture;
pub mod rows;
pub mod text;
pub mod words;
