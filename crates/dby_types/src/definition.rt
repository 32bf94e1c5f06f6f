//! Definitions of tables and indexes.

use crate::number::RowId;
use crate::seq::Seq;
use crate::value::{Name, Row, Ty};

/// A column: its name, its type, and whether it refuses NULL.
#[derive(Debug, Drop)]
pub struct ColumnDef {
    pub name: Name,
    pub ty: Ty,
    pub not_null: bool,
}

pub type Columns = Seq<ColumnDef>;

/// Places of columns in their table, from 0.
pub type Places = Seq<u32>;

/// A table. Its number is that of its container.
#[derive(Debug, Drop)]
pub struct TableDef {
    pub number: u32,
    pub name: Name,
    pub columns: Columns,
}

pub type TableDefs = Seq<TableDef>;

/// An index over columns of a table. One that a key rule made has the empty name.
#[derive(Debug, Drop)]
pub struct IndexDef {
    pub number: u32,
    pub table: u32,
    pub name: Name,
    pub columns: Places,
    pub unique: bool,
    pub primary: bool,
}

pub type IndexDefs = Seq<IndexDef>;

/// The tables and indexes that the catalog describes.
#[derive(Debug, Drop)]
pub struct Dictionary {
    pub tables: TableDefs,
    pub indexes: IndexDefs,
}

/// A row of a catalog table.
#[derive(Debug, Drop)]
pub struct CatalogRow {
    pub table: u32,
    pub rid: RowId,
    pub row: Row,
}

pub type CatalogRows = Seq<CatalogRow>;
