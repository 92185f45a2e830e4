//! What no text of a program reaches: sources and sinks that fail in mid-stream, what a script says that isn't done yet, and journals of
//! what isn't called yet, read and written again. All else of the crates of texts is shown by `cases/`. The tests stand here and not in
//! each library, since a library with tests is proved twice.
#![tactic(auto)]

#[cfg(test)]
mod journals;
#[cfg(test)]
mod outsides;
#[cfg(test)]
mod scripts;
