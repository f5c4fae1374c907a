// Name texts: the spelling of a name of a variable or of one of its nodes, as `^A("x""y",2)`.
//
// There is one spelling a name: `spell` writes it, `name_text` of `specs/Spelling.antt`. `read_name` finds the name that a text spells
// (`IsReading` of `specs/Reading.antt`): it accepts the name texts of formed names and nothing else. Both take time linear in the bytes.
#![tactic(auto)]

mod parts;
mod read;
mod spelling;

pub use parts::{qlength, qsubscript};
pub use read::read_name;
pub use spelling::spell;
