//! Tests of the program, from the words of its command line and a script to what is printed, and of what
//! several users do one after the other to one database.
#![tactic(auto)]

#[cfg(test)]
mod changed;
#[cfg(test)]
mod large;
#[cfg(test)]
mod outside;
#[cfg(test)]
mod owned;
#[cfg(test)]
mod permitted;
#[cfg(test)]
mod sessions;
#[cfg(test)]
mod shown;
#[cfg(test)]
mod trials;
#[cfg(test)]
mod users;
#[cfg(test)]
mod worked;
#[cfg(test)]
mod worked_catalogue;
