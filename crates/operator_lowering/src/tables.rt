// The words of templates, over the registers of a template.

pub(crate) mod accumulations;
pub(crate) mod clips;
pub(crate) mod halves;
pub(crate) mod long_shifts;
pub(crate) mod norms;
pub(crate) mod plain_shifts;
pub(crate) mod products;
pub(crate) mod short_shifts;
pub(crate) mod sums;
