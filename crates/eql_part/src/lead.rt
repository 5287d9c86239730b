//! The number of each room's key, by which keys are sorted before they are compared as a whole.

/// Notes the number of the key of the room at a place.
pub(crate) fn set_lead(leads: &mut Vec<u128>, place: usize, lead: u128) {
    if let Some(own) = leads.get_mut(place) {
        *own = lead;
    }
}
