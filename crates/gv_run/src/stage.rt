use gv_mediator::{Guest, Mediator};

/// The guests of a script: gathered at first, and then with the devices that were made for them, all at once.
#[derive(Drop)]
pub enum Stage {
    Gathering(Vec<Guest>),
    Running(Mediator),
}
