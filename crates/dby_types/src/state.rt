//! SQLSTATEs.

/// Why a statement is refused. Each variant is one code of the printed text.
#[derive(Clone, Copy, Debug, PartialEq, Eq)]
pub enum SqlState {
    /// 40001: the transaction is the victim of a deadlock.
    Deadlock,
    /// 23505: another row has an equal unique key.
    DuplicateKey,
    /// 23502: NULL for a column that is NOT NULL.
    NullNotAllowed,
    /// 22001: a text is too long for its column.
    TextTooLong,
    /// 22003: a number is outside its type.
    OutOfRange,
    /// 22012: division by zero.
    DivisionByZero,
    /// 42X01: the text isn't in the grammar; the place in bytes from its first token.
    Syntax { at: u32 },
    /// 42X05: a table doesn't exist.
    NoTable,
    /// 42X04: a column doesn't exist.
    NoColumn,
    /// 42X03: a column's name stands in two tables.
    AmbiguousColumn,
    /// 42X14: a column isn't in the target table.
    NotInTarget,
    /// 42802: the number of values isn't that of the columns.
    ValueCount,
    /// 42818: the operands are not comparable.
    NotComparable,
    /// 42821: a value's type can't be stored in its column.
    NotStorable,
    /// X0Y32: the name exists.
    NameExists,
    /// 42Y55: there is nothing of the name to drop.
    NothingToDrop,
    /// 23503: a foreign key has no parent row.
    NoParent,
    /// 23513: a check is false.
    CheckFails,
    /// PRL00: the form isn't built yet.
    NotBuilt,
    /// PRL01: no further page or container.
    PagesSpent,
    /// PRL02: no further log room.
    LogSpent,
    /// PRL03: a row, a key, a list or an expression is past its limit.
    TooLarge,
    /// PRL04: the statement's text is too long.
    StatementTooLong,
    /// PRL05: a name stands twice in one list.
    NameTwice,
    /// PRL06: an aggregate, or a column beside one, where it may not stand.
    Grouping,
    /// PRL07: an operand has the wrong type.
    WrongOperand,
    /// PRL08: a second primary key.
    SecondPrimaryKey,
    /// PRL09: a cursor is open, or isn't.
    CursorState,
    /// PRL10: a cursor's query isn't over one table alone.
    CursorQuery,
    /// PRL11: eight cursors are open.
    CursorsSpent,
    /// PRL12: an open cursor reads the table.
    CursorOpen,
    /// PRL13: no such key to refer to.
    NoParentKey,
    /// PRL14: another table refers to the table.
    IsParent,
    /// PRL15: a check's text is too long.
    CheckTooLong,
}
