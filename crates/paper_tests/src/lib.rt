//! Tests of instance documents, of the tables of an instance, of the text of reports, and of a plan's lines of text, page, rota, short slots and sheets.
#![tactic(auto)]

#[cfg(test)]
mod covers;
#[cfg(test)]
mod documents;
#[cfg(test)]
mod generated_instances;
#[cfg(test)]
mod imports;
#[cfg(test)]
mod lines;
#[cfg(test)]
mod pages;
#[cfg(test)]
mod reports;
#[cfg(test)]
mod rotas;
#[cfg(test)]
mod sheets;
#[cfg(test)]
mod short_days;
#[cfg(test)]
mod two_days;
