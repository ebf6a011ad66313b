//! Tests of what is read and written: positions, entries, trees, lines, signs of life and counts of lines.
#![tactic(auto)]

#[cfg(test)]
mod counts;
#[cfg(test)]
mod drawings;
#[cfg(test)]
mod entries;
#[cfg(test)]
mod entries_kept;
#[cfg(test)]
mod flaws;
#[cfg(test)]
mod lines;
#[cfg(test)]
mod made_rows;
#[cfg(test)]
mod move_names;
#[cfg(test)]
mod names;
#[cfg(test)]
mod packings;
#[cfg(test)]
mod positions;
#[cfg(test)]
mod signs;
#[cfg(test)]
mod winning_lines;
