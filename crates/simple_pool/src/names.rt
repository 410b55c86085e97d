//! Names and keys of pools.

ghost use Rattle.std.specs.Prelude.{◌≡◌, ◌<◌, ◌^◌, ◌≤◌, not, true, IfOk, length};
ghost use Rattle.std.specs.List.{list_all};
ghost use Rattle.simple_pool.specs.Names.{is_good_key, is_good_name, is_name_byte, is_reserved};
ghost use Rattle.simple_pool.specs.Names.{braced, escaped, pattern_of, pool_key};

use apcu_model::Pattern;
use php_graph::Bytes;
use regex::escape;
use std::alloc::{AllocError, Global};

fn is_name_byte(byte: u8) -> bool
    ensures { result ≡ is_name_byte byte }
{
    byte.is_ascii_alphanumeric() || (byte == b'_' || byte == b'.')
}

fn is_reserved(byte: u8) -> bool
    ensures { result ≡ is_reserved byte }
{
    matches!(byte, b'{' | b'}' | b'(' | b')' | b'/' | b'\\' | b'@' | b':')
}

/// Whether a pool may have this name: 1 to 64 bytes of `A-Za-z0-9_.`.
pub fn good_name(name: &[u8]) -> bool
    ensures { result ≡ is_good_name name.now }
{
    1 <= name.len() && (name.len() <= 64 && are_name_bytes(name))
}

fn are_name_bytes(name: &[u8]) -> bool
    ensures { result ≡ list_all is_name_byte name.now }
{
    name.iter().all(|byte| is_name_byte(*byte))
}

/// Whether a pool may have this key: 1 to 4,294,967,229 bytes without `{}()/\@:`.
pub fn good_key(key: &[u8]) -> bool
    ensures { result ≡ is_good_key key.now }
{
    1 <= key.len() && (key.len() <= 4_294_967_229 && is_unreserved(key))
}

fn is_unreserved(key: &[u8]) -> bool
    ensures { result ≡ list_all (λ b. not (is_reserved b)) key.now }
{
    key.iter().all(|byte| !is_reserved(*byte))
}

/// The key of the cache under which a pool keeps its key.
pub fn pool_key(alloc: Global, pool: &[u8], key: &[u8]) -> Result<Bytes, AllocError>
    requires name { is_good_name pool.now ≡ true }
    requires key { is_good_key key.now ≡ true }
    ensures { IfOk result (λ bytes. bytes ≡ pool_key pool.now key.now) }
{
    let mut bytes = braced(alloc, pool, key.len())?;
    bytes.extend_from_slice(key)?;
    Ok(Bytes::from_vec(bytes))
}

// The name in braces, in a block with room for `behind` bytes after it.
fn braced(alloc: Global, pool: &[u8], behind: usize) -> Result<Vec<u8>, AllocError>
    requires name { length pool.now ≤ 64 }
    requires behind { behind < 2 ^ 32 }
    ensures { IfOk result (λ bytes. bytes.items ≡ braced pool.now) }
{
    let mut bytes = Vec::with_capacity(alloc, pool.len() + 2 + behind)?;
    bytes.push(b'{')?;
    bytes.extend_from_slice(pool)?;
    bytes.push(b'}')?;
    Ok(bytes)
}

/// The pattern that matches exactly the keys that contain the pool's name in braces.
pub fn pool_pattern(alloc: Global, pool: &[u8]) -> Result<Pattern, AllocError>
    requires { is_good_name pool.now ≡ true }
    ensures { IfOk result (λ pattern. pattern ≡ pattern_of pool.now) }
{
    let bytes = braced(alloc, pool, 0)?;
    let Ok(text) = str::from_utf8(&bytes) else {
        unreachable!()
    };
    let escaped = escape(alloc, text)?;
    Ok(Pattern {
        text: Bytes::from_vec(escaped.into_bytes()),
        fold: false,
    })
}
