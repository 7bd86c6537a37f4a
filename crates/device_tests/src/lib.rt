// Examples of hoppers, printers and the listing at their edges, as tests.
//
// They have a crate of their own because a crate with tests is proved twice.
#![tactic(auto)]

#[cfg(test)]
mod cards_listed;
#[cfg(test)]
mod feeding;
#[cfg(test)]
mod printers;
