//! Tests of a database in memory, of the changes that one takes, of the trees that are fit for one, and of
//! the texts of its views.
#![tactic(auto)]

#[cfg(test)]
mod answers;
#[cfg(test)]
mod carried;
#[cfg(test)]
mod cases;
#[cfg(test)]
mod causes;
#[cfg(test)]
mod changes;
#[cfg(test)]
mod checked;
#[cfg(test)]
mod checks;
#[cfg(test)]
mod conditions;
#[cfg(test)]
mod cutting;
#[cfg(test)]
mod expanding;
#[cfg(test)]
mod folded;
#[cfg(test)]
mod folds;
#[cfg(test)]
mod given;
#[cfg(test)]
mod groups;
#[cfg(test)]
mod levels;
#[cfg(test)]
mod looked_up;
#[cfg(test)]
mod new_database;
#[cfg(test)]
mod number_rows;
#[cfg(test)]
mod one_variable;
#[cfg(test)]
mod plans;
#[cfg(test)]
mod queries;
#[cfg(test)]
mod query_answers;
#[cfg(test)]
mod remembered;
#[cfg(test)]
mod ruled;
#[cfg(test)]
mod shared;
#[cfg(test)]
mod shown;
#[cfg(test)]
mod shown_trees;
#[cfg(test)]
mod slots;
#[cfg(test)]
mod stored;
#[cfg(test)]
mod tower;
#[cfg(test)]
mod trees;
#[cfg(test)]
mod updates;
#[cfg(test)]
mod view_texts;
