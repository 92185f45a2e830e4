//! The disks by tests: calls that fail, a stop, what is left, shelves, and real files. They stand here and not in the library,
//! since a library with tests is proved twice.
#![tactic(auto)]

#[cfg(test)]
mod files;
#[cfg(test)]
mod memory;
#[cfg(test)]
mod shelves;
