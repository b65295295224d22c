//! Tests of import, selection and export, on examples worked out by hand.
#![tactic(auto)]

#[cfg(test)]
mod examples;
#[cfg(test)]
mod exports;
#[cfg(test)]
mod imports;
#[cfg(test)]
mod ranks;
