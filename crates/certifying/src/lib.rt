//! The maker of certificates: what each claim's line says, by decisions over a table. The checker believes nothing of it, so that it
//! promises no more than the grammar. With a checker beside it each line that is handed out was taken, and the whole is a certificate.
#![tactic(auto)]

mod certificate;
mod checked;
mod choosing;
mod no_lines;
mod text;
mod yes_lines;

pub use certificate::Certificate;
pub use checked::Checked;
