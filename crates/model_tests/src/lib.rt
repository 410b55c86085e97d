//! Tests of the cache as it is defined, and of reading and printing: the plain cache, lists and
//! journals; scripts, bundles and calls of pools, correct and faulty; the output for a worker's
//! replies. Laws are called here too.
#![tactic(auto)]

#[cfg(test)]
mod asked;
#[cfg(test)]
mod bundle_faults;
#[cfg(test)]
mod bundles;
#[cfg(test)]
mod calls;
#[cfg(test)]
mod drawing;
#[cfg(test)]
mod faults;
#[cfg(test)]
mod iterators;
#[cfg(test)]
mod laws;
#[cfg(test)]
mod lists;
#[cfg(test)]
mod loaders;
#[cfg(test)]
mod moments;
#[cfg(test)]
mod play;
#[cfg(test)]
mod pool_calls;
#[cfg(test)]
mod pool_faults;
#[cfg(test)]
mod pool_lines;
#[cfg(test)]
mod pool_names;
#[cfg(test)]
mod reading;
#[cfg(test)]
mod rendered;
#[cfg(test)]
mod replies;
#[cfg(test)]
mod script_laws;
#[cfg(test)]
mod shapes;
