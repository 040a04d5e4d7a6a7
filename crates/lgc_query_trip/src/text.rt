// The text of queries.
ghost use Rattle.std.specs.Prelude.{◌≡◌, IfOk};
ghost use Rattle.lgc_formulas.specs.declared.formula.TheConstants.{MOST_NODES};
ghost use Rattle.lgc_formulas.specs.FormulaTexts.{text_setting};
ghost use Rattle.lgc_queries.specs.QueryText.{query_text};
ghost use Rattle.lgc_queries.specs.WritableQueries.{IsWritableQuery};
ghost use Rattle.lgc_query_trip.specs.QueryReadBack.{IsReadAsQuery, IsReadAsFile};

use lgc_meaning::Query;
use lgc_queries::write_query;
use lgc_values::Matrix;
use std::alloc::{AllocError, Global};

/// The text of a query of the logic, whose names can be read and which is no larger than what is read.
pub fn text_of_query<const N: usize>(
    alloc: Global,
    m: &Matrix<N>,
    q: &Query,
) -> Result<Vec<u8>, AllocError>
    requires { IsWritableQuery (text_setting m.now) MOST_NODES q.now }
    ensures text { IfOk result (λ text. text.items ≡ query_text m.now q.now) }
    // The grammar of queries derives this query from it, where quantifiers may stand and formulas have no numbers.
    ensures read_back { IfOk result (λ text. IsReadAsQuery m.now text.items q.now) }
    // With a full stop and a line feed behind it, it is a query file with this query alone, if that may stand in one.
    ensures file { IfOk result (λ text. IsReadAsFile m.now text.items q.now) }
{
    let _names = m.names();
    let mut text = Vec::new(alloc);
    write_query(alloc, m, q, &mut text)?;
    Ok(text)
}
