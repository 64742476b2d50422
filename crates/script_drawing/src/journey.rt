//! The steps that a packet has to do with.
use script_steps::{Act, Step};
use std::alloc::{AllocError, Global};

/// In which steps a packet was sent and delivered, by their places among all steps of a script.
#[derive(Clone, Copy)]
pub(crate) struct Journey {
    pub sent: Option<usize>,
    pub first_delivery: Option<usize>,
    pub last_delivery: Option<usize>,
}

impl Journey {
    fn note_delivery(&mut self, place: usize) {
        self.first_delivery = self.first_delivery.or(Some(place));
        self.last_delivery = Some(place);
    }

    /// Whether the step at this place or a later one delivers the packet, or none ever does.
    pub fn is_open_at(&self, place: usize) -> bool {
        match self.last_delivery {
            Some(last) => place <= last,
            None => true,
        }
    }
}

/// The number of the packet that a step delivers, if it delivers one. Before it is sent there is no packet of a number.
pub(crate) fn delivered_by(step: &Step) -> Option<usize> {
    match step.act {
        Act::Deliver { number } if number < step.first => Some(number),
        _ => None,
    }
}

/// The journeys of so many packets.
pub(crate) fn journeys_of(
    alloc: Global,
    steps: &[Step],
    packets: usize,
) -> Result<Vec<Journey>, AllocError> {
    let mut journeys = Vec::new(alloc);
    let none = Journey {
        sent: None,
        first_delivery: None,
        last_delivery: None,
    };
    journeys.resize(packets, none)?;
    for (place, step) in steps.iter().enumerate() {
        note_step(journeys.as_mut_slice(), place, step);
    }
    Ok(journeys)
}

/// Notes the packets that a step sent and the one that it delivered.
fn note_step(journeys: &mut [Journey], place: usize, step: &Step) {
    if let Some(sent) = journeys.get_mut(step.first..step.end) {
        for journey in sent {
            journey.sent = Some(place);
        }
    }
    if let Some(number) = delivered_by(step) {
        if let Some(journey) = journeys.get_mut(number) {
            journey.note_delivery(place);
        }
    }
}
