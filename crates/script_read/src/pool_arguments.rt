//! The arguments of pools' lines.

ghost use Rattle.std.specs.Prelude.{◌≡◌, ℕ, ◌≤◌, ◌<◌, true, List, length, None, IfOk, IfSome};
ghost use Rattle.simple_pool.specs.Names.{is_good_key, is_good_name};
ghost use Rattle.simple_pool.specs.Requests.{are_good_keys, are_good_pairs, is_good_ttl};
ghost use Rattle.script_read.specs.Arguments.{any_value, null_value, own_key, own_keys, own_pairs};
ghost use Rattle.script_read.specs.Arguments.{own_ttl, pool_name};
ghost use Rattle.script_read.specs.Reading.{argument_at, optional_at};
ghost use Rattle.script_read.specs.Gives.{GivesItem};

use crate::arguments::{ends_here, fault, space, value, value_argument};
use crate::choices::{integer_of, is_null, keys_of, pairs_of};
use crate::fault::Stop;
use apcu_model::{Keys, Pairs};
use notation::Reason;
use php_graph::{Builder, Bytes, Graph, Item};
use simple_pool::{good_key, good_name};
use std::alloc::{AllocError, Global};

// The name of a pool that a value is.
fn name_of(graph: Graph) -> Option<Bytes>
    ensures is { result ≡ pool_name graph }
    ensures good { IfSome result (λ name. is_good_name name ≡ true) }
{
    match graph.into_string() {
        Ok(name) => {
            if good_name(name.as_slice()) {
                Some(name)
            } else {
                None
            }
        }
        Err(_) => None,
    }
}

// The key of a pool that a value is.
fn key_of(graph: Graph) -> Option<Bytes>
    ensures is { result ≡ own_key graph }
    ensures good { IfSome result (λ key. is_good_key key ≡ true) }
{
    match graph.into_string() {
        Ok(key) => {
            if good_key(key.as_slice()) {
                Some(key)
            } else {
                None
            }
        }
        Err(_) => None,
    }
}

fn all_good(keys: &[Bytes]) -> bool
    ensures { result ≡ are_good_keys keys.now }
{
    keys.iter().all(|key| good_key(key.as_slice()))
}

fn all_pairs_good(pairs: &[(Bytes, Graph)]) -> bool
    ensures { result ≡ are_good_pairs pairs.now }
{
    pairs.iter().all(|pair| good_key(pair.0.as_slice()))
}

// The keys of a pool in an array of strings.
fn own_keys_of(alloc: Global, graph: &Graph) -> Result<Option<Keys>, AllocError>
    ensures is { IfOk result (λ made. made ≡ own_keys graph.now) }
    ensures good { IfOk result (λ made. IfSome made (λ keys. are_good_keys keys ≡ true)) }
{
    match keys_of(alloc, graph)? {
        Some(keys) => {
            if all_good(keys.as_slice()) {
                Ok(Some(keys))
            } else {
                Ok(None)
            }
        }
        None => Ok(None),
    }
}

// The keys of a pool in an array, with their values.
fn own_pairs_of(alloc: Global, graph: &Graph) -> Result<Option<Pairs>, AllocError>
    ensures is { IfOk result (λ made. made ≡ own_pairs graph.now) }
    ensures good { IfOk result (λ made. IfSome made (λ pairs. are_good_pairs pairs ≡ true)) }
{
    match pairs_of(alloc, graph)? {
        Some(pairs) => {
            if all_pairs_good(pairs.as_slice()) {
                Ok(Some(pairs))
            } else {
                Ok(None)
            }
        }
        None => Ok(None),
    }
}

// The time to live that a value is.
fn own_ttl_of(graph: &Graph) -> Option<Option<i64>>
    ensures is { result ≡ own_ttl graph.now }
    ensures good { IfSome result (λ ttl. IfSome ttl (λ n. is_good_ttl n ≡ true)) }
{
    if is_null(graph) {
        return Some(None);
    }
    match integer_of(graph) {
        Some(n) if n <= 4294967295 => Some(Some(n)),
        _ => None,
    }
}

// A null.
fn null_graph(alloc: Global) -> Result<Graph, AllocError>
    ensures { IfOk result (λ g. g ≡ null_value) }
{
    let mut builder = Builder::new(alloc);
    match builder.push(Item::Null) {
        Ok(()) => Ok(builder.seal()),
        Err(_) => Err(AllocError),
    }
}

// The name of a pool.
pub(crate) fn pool_name_argument(alloc: Global, bytes: &[u8]) -> Result<(Bytes, &[u8]), Stop>
    ensures read { GivesItem (λ x. (x.0, x.1.now)) result (argument_at pool_name bytes.now) }
    ensures fewer { IfOk result (λ x. length x.1.now < length bytes.now) }
    ensures good { IfOk result (λ x. is_good_name x.0 ≡ true) }
{
    let argument = space(bytes)?;
    let (graph, rest) = value(alloc, argument)?;
    match name_of(graph) {
        Some(own) => Ok((own, rest)),
        None => Err(fault(Reason::Argument, argument)),
    }
}

// A key of a pool.
pub(crate) fn own_key_argument(alloc: Global, bytes: &[u8]) -> Result<(Bytes, &[u8]), Stop>
    ensures read { GivesItem (λ x. (x.0, x.1.now)) result (argument_at own_key bytes.now) }
    ensures fewer { IfOk result (λ x. length x.1.now < length bytes.now) }
    ensures good { IfOk result (λ x. is_good_key x.0 ≡ true) }
{
    let argument = space(bytes)?;
    let (graph, rest) = value(alloc, argument)?;
    match key_of(graph) {
        Some(own) => Ok((own, rest)),
        None => Err(fault(Reason::Argument, argument)),
    }
}

// Keys of a pool.
pub(crate) fn own_keys_argument(alloc: Global, bytes: &[u8]) -> Result<(Keys, &[u8]), Stop>
    ensures read { GivesItem (λ x. (x.0, x.1.now)) result (argument_at own_keys bytes.now) }
    ensures fewer { IfOk result (λ x. length x.1.now < length bytes.now) }
    ensures good { IfOk result (λ x. are_good_keys x.0 ≡ true) }
{
    let argument = space(bytes)?;
    let (graph, rest) = value(alloc, argument)?;
    match own_keys_of(alloc, &graph)? {
        Some(own) => Ok((own, rest)),
        None => Err(fault(Reason::Argument, argument)),
    }
}

// Keys of a pool with their values.
pub(crate) fn own_pairs_argument(alloc: Global, bytes: &[u8]) -> Result<(Pairs, &[u8]), Stop>
    ensures read { GivesItem (λ x. (x.0, x.1.now)) result (argument_at own_pairs bytes.now) }
    ensures fewer { IfOk result (λ x. length x.1.now < length bytes.now) }
    ensures good { IfOk result (λ x. are_good_pairs x.0 ≡ true) }
{
    let argument = space(bytes)?;
    let (graph, rest) = value(alloc, argument)?;
    match own_pairs_of(alloc, &graph)? {
        Some(own) => Ok((own, rest)),
        None => Err(fault(Reason::Argument, argument)),
    }
}

// A value, or a null if the line ends.
pub(crate) fn default_argument(alloc: Global, bytes: &[u8]) -> Result<(Graph, &[u8]), Stop>
    ensures read { GivesItem (λ x. (x.0, x.1.now)) result
        (optional_at null_value any_value bytes.now) }
    ensures no_more { IfOk result (λ x. length x.1.now ≤ length bytes.now) }
{
    if ends_here(bytes) {
        return Ok((null_graph(alloc)?, bytes));
    }
    value_argument(alloc, bytes)
}

// A time to live, or none if the line ends.
pub(crate) fn own_ttl_argument(alloc: Global, bytes: &[u8]) -> Result<(Option<i64>, &[u8]), Stop>
    ensures read { GivesItem (λ x. (x.0, x.1.now)) result (optional_at None own_ttl bytes.now) }
    ensures no_more { IfOk result (λ x. length x.1.now ≤ length bytes.now) }
    ensures good { IfOk result (λ x. IfSome x.0 (λ n. is_good_ttl n ≡ true)) }
{
    if ends_here(bytes) {
        return Ok((None, bytes));
    }
    let argument = space(bytes)?;
    let (graph, rest) = value(alloc, argument)?;
    match own_ttl_of(&graph) {
        Some(ttl) => Ok((ttl, rest)),
        None => Err(fault(Reason::Argument, argument)),
    }
}
