//! The law of printed outputs, stated.

use reply_text::outputs_tell_journals;

#[test]
fn states_its_laws() {
    outputs_tell_journals();
}
