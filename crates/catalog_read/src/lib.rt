//! The rows of the three catalogues are read, and the parts of the database that they spell are made.
#![tactic(auto)]

mod applying;
mod attributes;
mod building;
mod finding;
mod items_of_rows;
mod laws;
mod numbered;
mod pairs;
mod parts;
mod parts_as_changes;
mod reading;
mod relations;
mod rows;
mod sorting;
mod spelling;
mod standing;
mod structures;
mod trees;

pub use building::build_schema;
pub use laws::a_catalogue_spells_its_schema;
pub use parts::{IndexPart, SchemaParts, ViewPart};
pub use reading::read_catalogue;
pub use rows::CatalogueRows;
pub use spelling::schema_parts;
