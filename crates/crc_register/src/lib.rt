// The shift register of CRC32C as a definition, and its laws. No code: the checksum's code cites them.
#![tactic(auto)]
