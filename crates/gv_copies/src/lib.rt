//! Copies of programs, tried over a device in memory. This library has tests alone: an image is filled and read
//! back, a window is built, run and dropped, and an element at work is put away, brought back and released.
#![tactic(auto)]

#[cfg(test)]
mod element;
#[cfg(test)]
mod image;
#[cfg(test)]
mod steps;
#[cfg(test)]
mod window;
