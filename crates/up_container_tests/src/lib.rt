//! Each public function of the crates below an object, once on its happy path and with ample memory. They stand here and not in each
//! library, since a library with tests is proved twice.
#![tactic(auto)]

#[cfg(test)]
mod asking;
#[cfg(test)]
mod banks;
#[cfg(test)]
mod clocks;
#[cfg(test)]
mod logs;
#[cfg(test)]
mod numbers;
#[cfg(test)]
mod paging;
#[cfg(test)]
mod queueing;
#[cfg(test)]
mod relieving;
#[cfg(test)]
mod spans;
#[cfg(test)]
mod turning;
