//! The laws of the plain cache, stated.

use apcu_model::{
    count_laws, events_keep, held_alike, numbered, one_event_more, rows_keep_numbers,
    rows_stay_apart, works_alone,
};

#[test]
fn states_its_laws() {
    works_alone();
    rows_stay_apart();
    events_keep();
    count_laws();
    held_alike();
    numbered();
    rows_keep_numbers();
    one_event_more();
}
