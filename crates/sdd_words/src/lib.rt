//! Lines and their words, as the files of a run spell them: lines are cut at newlines, words at
//! single spaces; a word is plain or a text between quotes; each number has one spelling.
//!
//! What the layer above gets: `next_line` and `words_of` give exactly the lines and words that the
//! bytes spell (`specs/Lines.antt`, `specs/Words.antt`), `number_in` and `read_count` the number
//! (`specs/Number.antt`), `Tokens` and the calls of `form` the parts of a line by its keywords
//! (`specs/Forms.antt`), and the calls of `write` put the one spelling of each.
//!
//! No list is made of the words of a line: `Tokens` are the bytes that are left of it, and a word is
//! read off its front when it is asked for.
#![tactic(auto)]

mod form;
mod keyword;
mod line;
mod naming;
mod number;
mod point;
mod replies;
mod run;
mod split;
mod text;
mod token;
mod tokens;
mod whole;
mod write;

pub use form::{
    Comparison, Comparisons, Setting, Settings, are_free, look_like_columns, read_comparisons,
    read_settings,
};
pub use keyword::{adds, has_key, is_free, looks_like_column, names_column, operator};
pub use line::next_line;
pub use naming::read_name;
pub use number::{number_in, read_count};
pub use point::parts_at_point;
pub use replies::{put_outcome, put_rows, room_for_outcome};
pub use text::{are_sound, is_text, text_of};
pub use token::Token;
pub use tokens::{Tokens, words_of};
pub use whole::{are_whole_digits, is_whole_number};
pub use write::{put, put_count, put_number, put_text, put_value, put_values};
