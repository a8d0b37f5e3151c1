//! Whole runs: tables of words and files in, texts and statuses out, files at each limit and one past it, and streams that fail; and dialogues over a peer in memory. `docs/ARCHITECTURE.md` says where tests stand.
#![tactic(auto)]

#[cfg(test)]
mod alike;
#[cfg(test)]
mod chains;
#[cfg(test)]
mod dialogues;
#[cfg(test)]
mod files;
#[cfg(test)]
mod limits;
#[cfg(test)]
mod malformed;
#[cfg(test)]
mod modes;
#[cfg(test)]
mod peers;
#[cfg(test)]
mod reasons;
#[cfg(test)]
mod rows;
#[cfg(test)]
mod runs;
#[cfg(test)]
mod settled;
#[cfg(test)]
mod streams;
#[cfg(test)]
mod sure;
#[cfg(test)]
mod undecided;
#[cfg(test)]
mod words;
#[cfg(test)]
mod worked;
