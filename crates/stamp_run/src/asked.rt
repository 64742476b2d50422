//! How the log keeps an event.
use model_streams::Event;

/// A delivery by its number, which takes no memory, and any other event in memory of its own.
pub enum Asked {
    Delivered(usize),
    Called(Box<Event>),
}

// Written out, so that a crate above that lets one go has no proof of what is in it.
impl Drop for Asked {
    fn drop(self) {
        match self {
            Asked::Delivered(_) => {}
            Asked::Called(_) => {}
        }
    }
}
