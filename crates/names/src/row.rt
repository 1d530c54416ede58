// The rows of an entity, in the order in which they follow its single words (rule 2.3), each with its number.
ghost use Rattle.std.specs.Prelude.{◌≡◌};
ghost use Rattle.names.specs.Rows.{row_number};

#[derive(Clone, Copy, Debug, PartialEq, Eq)]
pub enum Row {
    Places = 0,
    Sums = 1,
    Triples = 2,
}

impl From<Row> for usize {
    ghost from_gives = { λ r n. n ≡ row_number r };

    fn from(r: Row) -> usize {
        r as usize
    }
}
