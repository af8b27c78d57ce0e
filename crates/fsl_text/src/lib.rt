//! Gives bytes, lists and texts to every crate above, and reads and writes the parts below any format: escapes, the tokens of a
//! line, decimal numbers and paths. Each reader answers exactly as its definition says, whatever the bytes are.
#![tactic(auto)]

mod decimals;
mod escapes;
mod fault;
mod limits;
mod list;
mod memory;
mod path;
mod steps;
mod text;
mod token;

pub use decimals::decimal;
pub use escapes::{escape, escape_into, unescape, unescapes_escaped};
pub use fault::{DecimalFault, Span};
pub use limits::{
    BUDGET, MOST_FIELDS, MOST_HELD_BYTES, MOST_NAMES, MOST_NOTICES, MOST_OF_ARTIFACT,
    MOST_OF_MESSAGE, MOST_OF_PATH, MOST_OF_USERS, MOST_ROUNDS, SHARE,
    limits_are_those_of_the_definitions,
};
pub use list::List;
pub use memory::Memory;
pub use path::path_ok;
pub use steps::Steps;
pub use text::Text;
pub use token::{tokens, tokens_at_spans};
