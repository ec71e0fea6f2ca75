//! Tests of what no row of data reaches beside adapters: sources and sinks that fail, readers and writers of std (`glue_ends`), words and items
//! that are put together and copied (`glue_words`), and what a lowered module gives whose adapter names entries that aren't there
//! (`glue_shared`). Texts, files and lengths were worked out by hand.
#![tactic(auto)]

#[cfg(test)]
mod compare;
#[cfg(test)]
mod ends;
#[cfg(test)]
mod items;
#[cfg(test)]
mod shared;
