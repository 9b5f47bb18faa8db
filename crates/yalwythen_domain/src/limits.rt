// The limits of a domain: what 16 bits can number.

/// The greatest number of channels of a domain.
pub(crate) const DOMAIN_CHANNELS: usize = 65_536;

/// The greatest number of seats of a domain.
pub(crate) const DOMAIN_SEATS: usize = 65_536;
