// Tables of vectors for rows and proof methods, run as tests. Each vector names the whole fault: kind, place, depth
// and item.
#![tactic(auto)]

#[cfg(test)]
mod count_vectors;
#[cfg(test)]
mod cut_vectors;
#[cfg(test)]
mod helpers;
#[cfg(test)]
mod look_up_vectors;
#[cfg(test)]
mod multiplier_vectors;
#[cfg(test)]
mod row_vectors;
#[cfg(test)]
mod split_vectors;
#[cfg(test)]
mod stack_vectors;
#[cfg(test)]
mod value_vectors;
