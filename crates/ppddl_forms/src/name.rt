//! Names and variables with their places.

use ppddl_cursor::Place;
use ppddl_model::Text;

/// A name or a variable in lower case, and where it stands.
#[derive(Drop, Debug)]
pub struct Name {
    pub text: Text,
    pub place: Place,
}
