//! The words that lines begin with.

ghost use Rattle.std.specs.Prelude.{◌≡◌};
ghost use Rattle.std.specs.Str.{bytes_eq};
ghost use Rattle.script_read.specs.Table.{form_in, form_of};
ghost use Rattle.script_read.specs.Gives.{form_named, forms_of};

/// What a line begins with.
#[derive(Clone, Copy)]
pub(crate) enum Keyword {
    Time,
    Request,
    Store,
    Add,
    Fetch,
    Exists,
    Delete,
    Inc,
    Dec,
    Cas,
    Entry,
    Clear,
    Enabled,
    KeyInfo,
    CacheInfo,
    SmaInfo,
    Iterate,
    IterateDelete,
    IterateTotals,
    PoolGet,
    PoolSet,
    PoolDelete,
    PoolClear,
    PoolGetMany,
    PoolSetMany,
    PoolDeleteMany,
    PoolHas,
    /// No word of the language.
    Unknown,
}

// A row of the words.
struct Row {
    text: &'static [u8],
    word: Keyword,
}

// The words.
const WORDS: [Row; 27] = [
    Row {
        text: b"time",
        word: Keyword::Time,
    },
    Row {
        text: b"request",
        word: Keyword::Request,
    },
    Row {
        text: b"apcu_store",
        word: Keyword::Store,
    },
    Row {
        text: b"apcu_add",
        word: Keyword::Add,
    },
    Row {
        text: b"apcu_fetch",
        word: Keyword::Fetch,
    },
    Row {
        text: b"apcu_exists",
        word: Keyword::Exists,
    },
    Row {
        text: b"apcu_delete",
        word: Keyword::Delete,
    },
    Row {
        text: b"apcu_inc",
        word: Keyword::Inc,
    },
    Row {
        text: b"apcu_dec",
        word: Keyword::Dec,
    },
    Row {
        text: b"apcu_cas",
        word: Keyword::Cas,
    },
    Row {
        text: b"apcu_entry",
        word: Keyword::Entry,
    },
    Row {
        text: b"apcu_clear_cache",
        word: Keyword::Clear,
    },
    Row {
        text: b"apcu_enabled",
        word: Keyword::Enabled,
    },
    Row {
        text: b"apcu_key_info",
        word: Keyword::KeyInfo,
    },
    Row {
        text: b"apcu_cache_info",
        word: Keyword::CacheInfo,
    },
    Row {
        text: b"apcu_sma_info",
        word: Keyword::SmaInfo,
    },
    Row {
        text: b"APCUIterator",
        word: Keyword::Iterate,
    },
    Row {
        text: b"APCUIterator_delete",
        word: Keyword::IterateDelete,
    },
    Row {
        text: b"APCUIterator_totals",
        word: Keyword::IterateTotals,
    },
    Row {
        text: b"pool_get",
        word: Keyword::PoolGet,
    },
    Row {
        text: b"pool_set",
        word: Keyword::PoolSet,
    },
    Row {
        text: b"pool_delete",
        word: Keyword::PoolDelete,
    },
    Row {
        text: b"pool_clear",
        word: Keyword::PoolClear,
    },
    Row {
        text: b"pool_get_multiple",
        word: Keyword::PoolGetMany,
    },
    Row {
        text: b"pool_set_multiple",
        word: Keyword::PoolSetMany,
    },
    Row {
        text: b"pool_delete_multiple",
        word: Keyword::PoolDeleteMany,
    },
    Row {
        text: b"pool_has",
        word: Keyword::PoolHas,
    },
];

impl Keyword {
    // The word that this text is; what may follow it is what may follow the text.
    pub fn of(text: &[u8]) -> Keyword
        ensures { form_of text.now ≡ form_named result }
    {
        word_in(&WORDS, text)
    }
}

// The word by the first row that has this text.
fn word_in(rows: &[Row], text: &[u8]) -> Keyword
    ensures { form_in (forms_of rows.now) text.now ≡ form_named result }
{
    for row in rows {
        if is_word(text, row.text) {
            return row.word;
        }
    }
    Keyword::Unknown
}

pub(crate) fn is_word(text: &[u8], word: &[u8]) -> bool
    ensures { result ≡ bytes_eq text.now word.now }
{
    text == word
}
