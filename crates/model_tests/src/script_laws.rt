//! Calls of the laws of scripts, plays, walks, counters, generated scripts, bundles and pools.

use play_laws::{
    calls_are_walks, counters_count, generated_wishes, histories_are_plays, looks_come_last,
    one_event_own, steps_of_walks, summaries_agree, walks_give_once, walks_in_histories,
    walks_in_journals,
};
use pool_laws::{calls_are_tied, calls_stand_alone, pools_in_plays, pools_stand_alone};
use preload_set::{bundles_load, loaders_only_store, readings_are_bundles};
use script_read::scripts_are_ranged;
use simple_pool::keys_tell_pools_apart;

#[test]
fn plays_state_their_laws() {
    one_event_own();
    histories_are_plays();
    walks_give_once();
    steps_of_walks();
    walks_in_histories();
    calls_are_walks();
    walks_in_journals();
    scripts_are_ranged();
    counters_count();
    generated_wishes();
    summaries_agree();
    looks_come_last();
}

#[test]
fn preload_set_states_its_laws() {
    readings_are_bundles();
    loaders_only_store();
    bundles_load();
}

#[test]
fn pool_states_its_laws() {
    pools_stand_alone();
    calls_stand_alone();
    calls_are_tied();
    pools_in_plays();
    keys_tell_pools_apart();
}
