//! Tests of what no row of `worked_rows` can say: calls that no command makes yet, objects in memory whose calls fail, and
//! the adapters to the host on real folders.
#![tactic(auto)]

#[cfg(test)]
mod bounds;
#[cfg(test)]
mod cycles;
#[cfg(test)]
mod folders;
#[cfg(test)]
mod forms;
#[cfg(test)]
mod kinds;
#[cfg(test)]
mod outside;
#[cfg(test)]
mod records;
#[cfg(test)]
mod same;
#[cfg(test)]
mod stores;
#[cfg(test)]
mod trees;
#[cfg(test)]
mod values;
