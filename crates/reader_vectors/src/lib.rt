// Tables of vectors for the readers of tables and witnesses, run as tests. The bytes are built here, field by field, and
// each vector names the whole fault.
#![tactic(auto)]

#[cfg(test)]
mod building;
#[cfg(test)]
mod cut_vectors;
#[cfg(test)]
mod memory_vectors;
#[cfg(test)]
mod number_vectors;
#[cfg(test)]
mod piece_vectors;
#[cfg(test)]
mod reading;
#[cfg(test)]
mod record_vectors;
#[cfg(test)]
mod table_vectors;
#[cfg(test)]
mod witness_vectors;
