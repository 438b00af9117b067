// Where each setting stands in the words of its layer: the bit of its mark, and the bit from which its value stands.

// The rule.
pub(crate) const ID_AT: usize = 0;

pub(crate) const ACTION_AT: usize = 16;

// Link.
pub(crate) const DESTINATION_MAC_MARK: usize = 0;

pub(crate) const SOURCE_MAC_MARK: usize = 1;

pub(crate) const VLAN_MARK: usize = 2;

pub(crate) const VLAN_AT: usize = 8;

pub(crate) const PRIORITY_MARK: usize = 3;

pub(crate) const PRIORITY_AT: usize = 24;

pub(crate) const ETHER_MARK: usize = 4;

pub(crate) const ETHER_AT: usize = 32;

pub(crate) const SOCKET_MARK: usize = 5;

pub(crate) const SOCKET_AT: usize = 48;

// IP: a prefix has its length in the head word, its address beside it.
pub(crate) const SOURCE_PREFIX_MARK: usize = 0;

pub(crate) const SOURCE_LENGTH_AT: usize = 8;

pub(crate) const SOURCE_ADDRESS_AT: usize = 0;

pub(crate) const DESTINATION_PREFIX_MARK: usize = 1;

pub(crate) const DESTINATION_LENGTH_AT: usize = 16;

pub(crate) const DESTINATION_ADDRESS_AT: usize = 32;

pub(crate) const PROTOCOL_MARK: usize = 2;

pub(crate) const PROTOCOL_AT: usize = 24;

// The same of IPv6, whose addresses are words of their own.
pub(crate) const SOURCE6_PREFIX_MARK: usize = 3;

pub(crate) const SOURCE6_LENGTH_AT: usize = 32;

pub(crate) const DESTINATION6_PREFIX_MARK: usize = 4;

pub(crate) const DESTINATION6_LENGTH_AT: usize = 40;

pub(crate) const PROTOCOL6_MARK: usize = 5;

pub(crate) const PROTOCOL6_AT: usize = 48;

// Transport: the ports stand beside the head word.
pub(crate) const KIND_MARK: usize = 0;

pub(crate) const KIND_AT: usize = 8;

pub(crate) const SOURCE_PORTS_MARK: usize = 1;

pub(crate) const SOURCE_PORTS_AT: usize = 0;

pub(crate) const DESTINATION_PORTS_MARK: usize = 2;

pub(crate) const DESTINATION_PORTS_AT: usize = 32;

// SOME/IP.
pub(crate) const SERVICE_MARK: usize = 0;

pub(crate) const SERVICE_AT: usize = 8;

pub(crate) const METHOD_MARK: usize = 1;

pub(crate) const METHOD_AT: usize = 24;

pub(crate) const VERSION_MARK: usize = 2;

pub(crate) const VERSION_AT: usize = 40;

pub(crate) const TYPE_MARK: usize = 3;

pub(crate) const TYPE_AT: usize = 48;

pub(crate) const CODE_MARK: usize = 4;

pub(crate) const CODE_AT: usize = 56;

// Rate.
pub(crate) const SIZE_MARK: usize = 0;

pub(crate) const SIZE_AT: usize = 8;

pub(crate) const REFILL_MARK: usize = 1;

pub(crate) const REFILL_AT: usize = 24;

// Tracking.
pub(crate) const PLACES_MARK: usize = 0;

pub(crate) const PLACES_AT: usize = 8;

pub(crate) const LIMIT_MARK: usize = 1;

pub(crate) const LIMIT_AT: usize = 16;

pub(crate) const NUMBER0_MARK: usize = 2;

pub(crate) const NUMBER0_AT: usize = 48;

pub(crate) const NUMBER1_MARK: usize = 3;

pub(crate) const NUMBER1_AT: usize = 56;
