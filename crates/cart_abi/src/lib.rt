// The calls of a C program, which links them by `cart_abi_c`. Each but the version's returns 0 or the number of a
// refusal; values go to out-parameters.

#![tactic(auto)]

mod images;
mod matchers;
mod records;
mod version;

pub use images::{
    gbasave_crc_feed, gbasave_crc_finish, gbasave_crc_start, gbasave_detect_save_type,
    gbasave_header_checksum, gbasave_id_word, gbasave_memory_size, gbasave_read, gbasave_read16,
    gbasave_read32, gbasave_rom_crc, gbasave_save_fit, gbasave_save_size, gbasave_title,
};
pub use matchers::{
    gbasave_matcher_feed, gbasave_matcher_finish, gbasave_matcher_start, gbasave_search,
};
pub use records::{
    gbasave_chip_state, gbasave_eeprom_begin_dma, gbasave_eeprom_read, gbasave_eeprom_window_start,
    gbasave_eeprom_write, gbasave_first_in_use, gbasave_from_bytes, gbasave_import_save,
    gbasave_is_blank, gbasave_load_save, gbasave_restore_chip_state, gbasave_save_data,
    gbasave_save_read, gbasave_save_write, gbasave_take_save_dirty, gbasave_uses_eeprom,
};
pub use version::gbasave_version;
