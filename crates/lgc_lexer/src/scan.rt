// Classes of bytes, and how many bytes of a class stand at the front.
ghost use Rattle.std.specs.Prelude.{◌≡◌, ◌≤◌, ◌==◌, length};
ghost use Rattle.std.specs.List.{prefix_len, position_or_len};
ghost use Rattle.lgc_lexer.specs.Forms.{is_blank, is_word, is_symbol, is_punct, is_quotable};

/// What stands around a Quoted.
pub(crate) const QUOTE: u8 = b'\'';

/// What stands around a Text.
pub(crate) const DOUBLE_QUOTE: u8 = b'"';

pub(crate) const UNDERSCORE: u8 = b'_';

pub(crate) const LINE_FEED: u8 = b'\n';

/// What begins a comment of one line.
pub(crate) const PERCENT: u8 = b'%';

pub(crate) const SLASH: u8 = b'/';

pub(crate) const STAR: u8 = b'*';

#[inline(always)]
pub(crate) fn is_blank(byte: u8) -> bool
    ensures { result ≡ is_blank byte }
{
    matches!(byte, b' ' | b'\t' | b'\n' | b'\r')
}

#[inline(always)]
pub(crate) fn is_word(byte: u8) -> bool
    ensures { result ≡ is_word byte }
{
    byte.is_ascii_alphanumeric() || byte == UNDERSCORE
}

#[inline(always)]
pub(crate) fn is_symbol(byte: u8) -> bool
    ensures { result ≡ is_symbol byte }
{
    matches!(
        byte,
        b'*' | b'+'
            | b'-'
            | b'#'
            | b'&'
            | b'@'
            | b'~'
            | b'^'
            | b'?'
            | b'!'
            | b'$'
            | b'<'
            | b'='
            | b'>'
            | b'|'
            | b'\\'
    )
}

#[inline(always)]
pub(crate) fn is_punct(byte: u8) -> bool
    ensures { result ≡ is_punct byte }
{
    matches!(
        byte,
        b'(' | b')' | b'{' | b'}' | b'[' | b']' | b',' | b'.' | b':' | b';' | b'/'
    )
}

pub(crate) fn is_quotable(byte: u8) -> bool
    ensures { result ≡ is_quotable byte }
{
    32 <= byte && byte <= 126 && byte != QUOTE
}

pub(crate) fn word_len(bytes: &[u8]) -> usize
    ensures value { result ≡ prefix_len is_word bytes.now }
    ensures within { result ≤ length bytes.now }
{
    bytes.iter().take_while(|b| is_word(**b)).count()
}

#[inline(always)]
pub(crate) fn symbol_len(bytes: &[u8]) -> usize
    ensures value { result ≡ prefix_len is_symbol bytes.now }
    ensures within { result ≤ length bytes.now }
{
    bytes.iter().take_while(|b| is_symbol(**b)).count()
}

pub(crate) fn quotable_len(bytes: &[u8]) -> usize
    ensures value { result ≡ prefix_len is_quotable bytes.now }
    ensures within { result ≤ length bytes.now }
{
    bytes.iter().take_while(|b| is_quotable(**b)).count()
}

/// How many bytes stand before the first `byte`, or all where there is none.
pub(crate) fn len_before(byte: u8, bytes: &[u8]) -> usize
    ensures value { result ≡ position_or_len (λ c. c == byte) bytes.now }
    ensures within { result ≤ length bytes.now }
{
    bytes.iter().take_while(|b| **b != byte).count()
}
