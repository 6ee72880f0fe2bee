//! The ids of graphs, tasks and pools.
ghost use Rattle.std.specs.Prelude.{◌≡◌};
ghost use Rattle.std.specs.List.{list_all};
ghost use Rattle.bf_plan.specs.Ids.{is_id_byte_in, is_id_in};

/// How many bytes an id may have, as in Airflow.
const LONGEST_ID: usize = 250;

/// Whether an id may have this byte: an ASCII letter or digit, `-`, `.` or `_`.
fn is_id_byte(byte: u8) -> bool
    ensures { result ≡ is_id_byte_in byte }
{
    byte.is_ascii_alphanumeric() || byte == b'-' || byte == b'.' || byte == b'_'
}

/// Whether an id may have all these bytes.
fn are_id_bytes(bytes: &[u8]) -> bool
    ensures { result ≡ list_all is_id_byte_in bytes.now }
{
    bytes.iter().all(|b| is_id_byte(*b))
}

/// Whether a text may be the id of a graph, a task or a pool: 1 to 250 ASCII letters, digits, `-`, `.` and `_`.
pub fn is_id(text: &str) -> bool
    ensures { result ≡ is_id_in text.now }
{
    1 <= text.len() && text.len() <= LONGEST_ID && are_id_bytes(text.as_bytes())
}
