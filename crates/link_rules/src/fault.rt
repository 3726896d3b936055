use crate::LinkWhy;
use items::Items;

/// Why a program does not link: what is wrong first, and the name of the class where it is.
#[derive(Debug, Drop)]
pub struct LinkFault {
    pub class: Items<u16>,
    pub why: LinkWhy,
}
