//! Tests of plays and of verdicts on them: a worker alone, two at once, and the gate that both
//! call; outputs, judged by `run_verify`; and the marks of journals, played on the cache over words.
//! The law of printed outputs is called here.
#![tactic(auto)]

#[cfg(test)]
mod alone;
#[cfg(test)]
mod beside;
#[cfg(test)]
mod gates;
#[cfg(test)]
mod laws;
#[cfg(test)]
mod mark_both;
#[cfg(test)]
mod mark_draws;
#[cfg(test)]
mod mark_held;
#[cfg(test)]
mod mark_random;
#[cfg(test)]
mod mark_requests;
#[cfg(test)]
mod marks;
#[cfg(test)]
mod outputs;
#[cfg(test)]
mod playing;
#[cfg(test)]
mod verdicts;
